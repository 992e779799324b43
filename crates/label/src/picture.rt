//! A picture of a sheet and of the tips that are answered in it, as SVG.
use crate::decimal::Hundredths;
use crate::failure::Failure;
use crate::frame::{Frame, MARGIN};
use crate::labels::Labels;
use crate::layout::Layout;
use crate::marks::{Dot, Mark, Sign, border, shape};
use crate::new_file::MARK;
use crate::sealed::Sealed;
use crate::tally::Tally;
use crate::tints::Tints;
use nodes::ReadStore;
use plane::{Edge, Point, place};
use rules::loop_edges;
use sheet::Answer;
use std::alloc::{AllocError, Global};
use std::io;
use std::io::Write;

// The most marks that are named, and that labels keep clear of; those behind them are drawn alone.
const MOST_MARKS: usize = 1000;

// How leader lines and labels are drawn. A letter is as wide as the layout takes it for, whatever the font.
const STYLE: &str = "<style>.leader{fill:none;stroke:#222;stroke-width:1.2}\
    .label{font:20px 'DejaVu Sans Mono','Liberation Mono',monospace;fill:black;\
    stroke:white;stroke-width:4;stroke-linejoin:round;paint-order:stroke}\
    .legend{font:18px 'DejaVu Sans','Liberation Sans',Arial,sans-serif}</style>";

/// A picture that is being written.
#[derive(Drop)]
pub(crate) struct Picture<W> {
    out: W,
    frame: Frame,
    marks: Vec<Mark>,
}

impl<W: Write> Picture<W> {
    /// Begins a picture with the faces and the edges of a sheet.
    pub(crate) fn begin<S: ReadStore>(
        heap: Global,
        out: W,
        sealed: &Sealed<S>,
    ) -> Result<Picture<W>, Failure>
    where
        W: Drop,
    {
        let size = sealed.desk.size();
        let frame = Frame {
            width: size.width,
            height: size.height,
        };
        let mut picture = Picture {
            out,
            frame,
            marks: Vec::new(heap),
        };
        picture.write_head()?;
        picture.write_faces(sealed, &Tints::of(heap, &sealed.desk)?)?;
        picture.write_edges(sealed)?;
        Ok(picture)
    }

    // The size of the picture, and a white ground.
    fn write_head(&mut self) -> io::Result<()> {
        let across = self.frame.across();
        let down = self.frame.with_legend();
        write!(self.out, "{MARK}")?;
        writeln!(
            self.out,
            "<svg xmlns='http://www.w3.org/2000/svg' width='{across}' height='{down}' viewBox='0 0 {across} {down}'>"
        )?;
        writeln!(self.out, "{STYLE}")?;
        writeln!(
            self.out,
            "<rect width='{across}' height='{down}' fill='white'/>"
        )
    }

    // Each loop of a sheet in order has an area above 0.
    fn write_faces<S: ReadStore>(&mut self, sealed: &Sealed<S>, tints: &Tints) -> io::Result<()> {
        let loops = usize::from(sealed.desk.size().loops);
        for entry in sealed.desk.loops.iter().take(loops) {
            let tint = tints.get(entry.numeral);
            write!(self.out, "<polygon fill='{tint}' points='")?;
            for edge in loop_edges(sealed.desk.edges.as_slice(), entry) {
                let (left, top) = self.corner(sealed.desk.points.as_slice(), edge.from);
                write!(self.out, " {left},{top}")?;
            }
            writeln!(self.out, "'/>")?;
        }
        Ok(())
    }

    fn corner(&self, points: &[Point], vertex: u16) -> (Hundredths, Hundredths) {
        self.frame.corner(place(points, vertex))
    }

    // Each edge is listed in both directions, and drawn in one.
    fn write_edges<S: ReadStore>(&mut self, sealed: &Sealed<S>) -> io::Result<()> {
        let points = sealed.desk.points.as_slice();
        let listed = usize::from(sealed.desk.size().corners) + 4;
        writeln!(
            self.out,
            "<path fill='none' stroke='#222' stroke-width='2' d='"
        )?;
        for edge in sealed.desk.edges.iter().take(listed) {
            let Edge { from, to } = *edge;
            if from < to {
                let (left, top) = self.corner(points, from);
                let (right, bottom) = self.corner(points, to);
                writeln!(self.out, "M{left} {top}L{right} {bottom}")?;
            }
        }
        writeln!(self.out, "'/>")
    }

    /// Draws the mark of a tip that has a place.
    pub(crate) fn draw(&mut self, dot: &Dot<'_>) -> Result<(), Failure> {
        if !dot.has_place() {
            return Ok(());
        }
        let at = self.frame.pixel(dot.spot);
        let mark = dot.mark(at);
        self.keep(mark)?;
        let shape = shape(mark.sign);
        let border = border(mark.sign);
        if mark.sign.is_held() {
            let (left, top) = self.frame.drawn(dot.spot);
            write!(
                self.out,
                "{shape} {border} transform='translate({left} {top})'>"
            )?;
        } else {
            let (left, top) = (at.left, at.top);
            write!(
                self.out,
                "{shape} {border} transform='translate({left} {top})'>"
            )?;
        }
        let end = if shape.starts_with("<circle") {
            "circle"
        } else {
            "path"
        };
        writeln!(self.out, "<title>{dot}</title></{end}>")?;
        Ok(())
    }

    // Keeps a mark for the labels.
    fn keep(&mut self, mark: Mark) -> Result<(), AllocError> {
        if self.marks.len() < MOST_MARKS {
            self.marks.push(mark)?;
        }
        Ok(())
    }

    /// Draws the labels, and the legend where there are tips; and ends the picture.
    pub(crate) fn end<S: ReadStore>(
        self,
        heap: Global,
        sealed: &mut Sealed<S>,
        tally: Option<Tally>,
    ) -> Result<W, Failure>
    where
        W: Drop,
    {
        let Picture { out, frame, marks } = self;
        let layout = Layout::new(heap, frame)?;
        let mut labels = Labels {
            heap,
            out,
            frame,
            layout,
        };
        let left_out = labels.draw(sealed, marks.as_slice())?;
        let Labels { mut out, .. } = labels;
        if let Some(tally) = tally {
            write_legend(&mut out, frame, tally)?;
        }
        if left_out > 0 {
            let row = frame.down().saturating_add(44);
            writeln!(
                out,
                "<text class='legend' x='{MARGIN}' y='{row}'>labels without room: {left_out}</text>"
            )?;
        }
        writeln!(out, "</svg>")?;
        Ok(out)
    }
}

// What the shapes mean, and how many of each there are.
fn write_legend<W: Write>(out: &mut W, frame: Frame, tally: Tally) -> io::Result<()> {
    let row = frame.down();
    let mut left = MARGIN;
    for (sign, count, name) in [
        (Sign::Held(Answer::Face(0)), tally.faces, "in faces"),
        (Sign::Held(Answer::OpenEdge(0, 0)), tally.edges, "on edges"),
        (Sign::Held(Answer::Vertex(0)), tally.vertices, "at vertices"),
        (Sign::Refused(0), tally.refused, "refused"),
    ] {
        let text = left.saturating_add(14);
        let base = row.saturating_add(6);
        writeln!(
            out,
            "{} {} transform='translate({left} {row})'/><text class='legend' x='{text}' y='{base}'>{count} {name}</text>",
            shape(sign),
            border(sign)
        )?;
        left = left.saturating_add(190);
    }
    let (bad, text) = (tally.bad_lines, left);
    let base = row.saturating_add(6);
    if bad > 0 {
        writeln!(
            out,
            "<text class='legend' x='{text}' y='{base}'>bad lines: {bad}</text>"
        )?;
    }
    Ok(())
}
