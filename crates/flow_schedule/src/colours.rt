//! The colours of the bars, and of the numbers on them.

ghost use Rattle.std.specs.Prelude.{◌≡◌, ◌≤◌};
ghost use Rattle.flow_schedule.specs.Picture.{colour, ink};

/// The colours of the jobs, seven bytes each.
const PALETTE: &[u8] = b"#004C7F#F0C800#8F2D00#7CC4F0#00594A#F2A65A#5B2A86#F2B6D2";

/// How many bytes a colour has.
const COLOUR: usize = 7;

/// How many colours there are.
const COLOURS: usize = 8;

/// The colour of the job at a place.
#[tactic(auto, unfolding(crate::specs::Picture::palette))]
pub(crate) fn colour(place: u16) -> &'static [u8]
    requires { 1 ≤ place }
    ensures { result.now ≡ colour place }
{
    let from = (place as usize - 1) % COLOURS * COLOUR;
    let palette = PALETTE;
    &palette[from..from + COLOUR]
}

/// The end of the opening tag of a label: white on a dark colour, and else black.
pub(crate) fn ink(place: u16) -> &'static [u8]
    ensures { result.now ≡ ink place }
{
    if place % 2 == 1 {
        b"\" fill=\"#ffffff\">"
    } else {
        b"\">"
    }
}
