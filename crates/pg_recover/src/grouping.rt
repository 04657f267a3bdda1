// Which payloads are read together.
ghost use Rattle.std.specs.Prelude.{◌≡◌, ◌≤◌, ◌<◌, ◌+◌, ◌-◌, ℕ, length, take, IfSome};
ghost use Rattle.pg_gate.specs.Payloads.{AreInside, IsInside};
ghost use Rattle.pg_recover.specs.Places.{Covers, IsCovered, payload_from};

use pg_gate::Span;

// How many bytes are read at once, at most, unless a single payload has more.
const PIECE: u64 = 65_536;

// A place that covers this one too, if it isn't too long.
fn longer_cover(cover: Span, span: Span) -> Option<Span>
    ensures both { IfSome result (λ longer. IsCovered longer cover × IsCovered longer span) }
    ensures inside { IfSome result (λ longer. (size : ℕ) → IsInside size cover → IsInside size span
        → IsInside size longer) }
{
    let end = span.at.checked_add(span.length)?;
    let length = end.checked_sub(cover.at)?;
    if span.at < cover.at || length < cover.length || length > PIECE {
        return None;
    }
    Some(Span {
        at: cover.at,
        length,
    })
}

// How many of the payloads are read together, from the first on, and the place that covers them.
pub(crate) fn first_group(spans: &[Span]) -> (usize, Span)
    requires { 1 ≤ length spans.now }
    ensures some { 1 ≤ result.0 }
    ensures most { result.0 ≤ length spans.now }
    ensures covers { Covers result.1 (take result.0 spans.now) }
    ensures inside { (size : ℕ) → AreInside size spans.now → IsInside size result.1 }
{
    let mut cover = spans[0];
    for count in 1..spans.len() {
        match longer_cover(cover, spans[count]) {
            Some(longer) => cover = longer,
            None => return (count, cover),
        }
    }
    (spans.len(), cover)
}

// The payload at its place, in bytes that were read at another that covers it.
pub(crate) fn payload_in(bytes: &[u8], cover: Span, span: Span) -> &[u8]
    requires size { length bytes.now ≡ cover.length }
    requires covered { IsCovered cover span }
    ensures { result.now ≡ payload_from cover.at bytes.now span }
{
    let from = (span.at - cover.at) as usize;
    let count = span.length as usize;
    &bytes[from..from + count]
}
