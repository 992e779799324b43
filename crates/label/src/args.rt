//! What the program is asked for.
use clap::error::ErrorKind;
use clap::{Arg, ArgAction, ArgMatches, Command, Error};
use std::alloc::{AllocError, Global};

/// The name that stands for standard input.
pub(crate) const INPUT: &str = "-";

const VERSION: &str = "1.0";

const ABOUT: &str =
    "Names the vertex, open edge or open face that holds each tip of a patent drawing's sheet";

const MORE: &str =
    "Without TIPS the parts list of the sheet is told.\nExit status: 0; 1 where a file is refused, cannot be read or cannot be written, and under --strict where a tip is refused or a line is bad; 2 where these words are wrong.";

/// In which form the answers are told.
#[derive(Clone, Copy, PartialEq, Eq, Debug)]
pub(crate) enum Form {
    Table,
    Csv,
    Json,
}

/// The files that the program is to read and write, and what it is to tell.
#[derive(Clone, Copy)]
pub(crate) struct Asked<'a> {
    pub(crate) sheet: &'a str,
    pub(crate) tips: Option<&'a str>,
    pub(crate) svg: Option<&'a str>,
    pub(crate) form: Form,
    pub(crate) stats: bool,
    pub(crate) strict: bool,
}

fn flag<'a>(heap: Global, name: &'a str, help: &'a str) -> Arg<'a> {
    Arg::new(heap, name)
        .long(name)
        .action(ArgAction::SetTrue)
        .help(help)
}

// The words of the program.
fn command<'a>(heap: Global) -> Result<Command<'a>, AllocError> {
    let sheet = Arg::new(heap, "sheet")
        .value_name("SHEET")
        .required(true)
        .help("A sheet file, as docs/FORMAT.md says; - for standard input");
    let tips = Arg::new(heap, "tips").value_name("TIPS").help(
        "Tips, a line `x y` or `X Y Z` each, for the point (X/Z, Y/Z); `#` begins a comment; - for standard input",
    );
    let svg = Arg::new(heap, "svg")
        .long("svg")
        .value_name("FILE")
        .action(ArgAction::Set)
        .help("Draw the sheet and the tips; no file but an earlier picture is replaced");
    let csv = flag(heap, "csv", "Tell the answers as CSV");
    let json = flag(heap, "json", "Tell the answers as JSON").conflicts_with("csv")?;
    let stats = flag(
        heap,
        "stats",
        "Tell the nodes, the rounds and the tests as well",
    )
    .conflicts_with("csv")?;
    let strict = flag(
        heap,
        "strict",
        "End with status 1 where a tip is refused or a line is bad",
    );
    let command = Command::new(heap, "label")
        .version(VERSION)
        .about(ABOUT)
        .after_help(MORE)
        .arg(sheet)?
        .arg(tips)?
        .arg(svg)?
        .arg(csv)?
        .arg(json)?
        .arg(stats)?;
    command.arg(strict)
}

// An error in the words that the parser takes.
fn wrong(heap: Global, kind: ErrorKind, words: &str) -> Result<Error, AllocError> {
    let mut command = command(heap)?;
    command.error(kind, words)
}

fn asked_by<'a>(matches: &ArgMatches<'a>) -> Option<Asked<'a>> {
    let form = if matches.get_flag("csv") {
        Form::Csv
    } else if matches.get_flag("json") {
        Form::Json
    } else {
        Form::Table
    };
    Some(Asked {
        sheet: matches.get_str("sheet")?,
        tips: matches.get_str("tips"),
        svg: matches.get_str("svg"),
        form,
        stats: matches.get_flag("stats"),
        strict: matches.get_flag("strict"),
    })
}

/// What the program's words ask for, its own name first; or what is wrong with them, or the help that they ask for.
pub(crate) fn read_words<'a>(heap: Global, words: &'a [String]) -> Result<Asked<'a>, Error> {
    let matches = command(heap)?.try_get_matches_from(words)?;
    let Some(asked) = asked_by(&matches) else {
        return Err(wrong(heap, ErrorKind::MissingRequiredArgument, "no SHEET")?);
    };
    if asked.sheet == INPUT && asked.tips == Some(INPUT) {
        return Err(wrong(
            heap,
            ErrorKind::ArgumentConflict,
            "SHEET and TIPS cannot both be standard input",
        )?);
    }
    if asked.svg == Some(INPUT) {
        return Err(wrong(
            heap,
            ErrorKind::InvalidValue,
            "--svg takes the name of a file",
        )?);
    }
    Ok(asked)
}

#[cfg(test)]
mod tests {
    use super::*;
    use std::test::Fail;

    // What a line of words asks for, or the status with which it ends.
    fn said(heap: Global, line: &str) -> Result<String, Fail> {
        let mut words = Vec::new(heap);
        for word in line.split_ascii_whitespace() {
            words.push(String::from_str(heap, word)?)?;
        }
        match read_words(heap, words.as_slice()) {
            Err(error) => Ok(format!(in heap; "{}", error.exit_code())?),
            Ok(asked) => {
                let tips = asked.tips.unwrap_or("none");
                let svg = asked.svg.unwrap_or("none");
                let Asked {
                    sheet,
                    form,
                    stats,
                    strict,
                    ..
                } = asked;
                Ok(format!(in heap; "{sheet} {tips} {svg} {form:?} {stats} {strict}")?)
            }
        }
    }

    #[test]
    fn words_are_read(rt: HostRuntime) -> Result<(), Fail> {
        for (line, told) in [
            ("label a", "a none none Table false false"),
            ("label a b --stats", "a b none Table true false"),
            ("label --svg c a --csv b", "a b c Csv false false"),
            (
                "label --svg=c --strict - --json",
                "- none c Json false true",
            ),
            ("label a -", "a - none Table false false"),
            ("label -- --svg -b", "--svg -b none Table false false"),
            ("label --help", "0"),
            ("label a -V", "0"),
            ("label", "2"),
            ("label a b c", "2"),
            ("label a --svg", "2"),
            ("label a --svg -", "2"),
            ("label --svg c --svg d a", "2"),
            ("label a --stats --stats", "2"),
            ("label a --csv --json", "2"),
            ("label a --csv --stats", "2"),
            ("label a --other", "2"),
            ("label - -", "2"),
        ] {
            let said = said(rt.alloc(), line)?;
            assert_eq!(rt; said.as_str(), told, "{line}");
        }
        Ok(())
    }
}
