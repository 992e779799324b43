//! The fan of a vertex: from one node around it to the next.
ghost use Rattle.std.specs.Prelude.{◌≡◌, ◌<◌, ◌≤◌, IfSome, Some as Found, drop, length, take};
ghost use Rattle.std.specs.Option.{option_map};
ghost use Rattle.fans.specs.Fans.{fan_of, fan_said, opening as opening_of};

use crate::around::Turned;

// The place of the first entry that turns to the vertex and `corner`.
fn opening(around: &[Turned], corner: u16) -> Option<usize>
    ensures { result ≡ opening_of around.now corner }
{
    around.iter().position(|turned| turned.next == corner)
}

// Puts the entries of the fan into the front of `links`, and answers how many they are; none where it is broken.
fn follow(around: &[Turned], links: &mut [Turned]) -> Option<usize>
    requires { length around.now ≤ length links.old }
    ensures said { result ≡ option_map length (fan_of around.now) }
    ensures links { IfSome result (λ n. fan_of around.now ≡ Found (take n links.new)) }
    ensures behind { IfSome result (λ n. drop n links.new ≡ drop n links.old) }
    ensures rest { drop (length around.now) links.new ≡ drop (length around.now) links.old }
{
    let mut at = 0;
    for i in 0..around.len() {
        let link = around[at];
        links[i] = link;
        at = opening(around, link.last)?;
        if at == 0 {
            return Some(i + 1);
        }
    }
    None
}

/// Puts the entries of a vertex's fan into the front of `links`, in its order, and answers how many they are: the fan starts at the first
/// entry, and from each entry goes on to the first that turns to its last corner, until it is back. None where no entry does or where as
/// many as there are do not bring it back, and where `links` is shorter than `around`, which leaves it as it was. What stands in `links`
/// behind the fan stays; where there is none, what stands behind as many as there are.
pub fn fan(around: &[Turned], links: &mut [Turned]) -> Option<usize>
    ensures said { result ≡ option_map length (fan_said around.now (length links.old)) }
    ensures links { IfSome result (λ n. fan_said around.now (length links.old) ≡ Found (take n links.new)) }
    ensures behind { IfSome result (λ n. drop n links.new ≡ drop n links.old) }
    ensures rest { drop (length around.now) links.new ≡ drop (length around.now) links.old }
    ensures short { length links.old < length around.now → links.new ≡ links.old }
{
    if links.len() < around.len() {
        return None;
    }
    follow(around, links)
}
