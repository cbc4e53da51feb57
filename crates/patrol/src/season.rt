// The season's file: a line for each record that a set lists at the end of its search.
ghost use Rattle.std.specs.Prelude.{◌≡◌, IfOk, string_bytes};
ghost use Rattle.patrol.specs.Season.{line as season_line};

use signal::{Beacon, Metres, SignalRecord};
use std::alloc::{AllocError, Global};

// The first line: the names of the columns.
pub const HEADING: &str = "search\tset\tbeacon\tmetres\tstrength\tsecond\n";

// A line of the season's file: six columns with tabs between.
pub(super) fn line(
    heap: Global,
    title: &str,
    name: &str,
    heard: SignalRecord,
) -> Result<String, AllocError>
    ensures { IfOk result (λ s. string_bytes s ≡ season_line title.now name.now heard) }
{
    let beacon = Beacon(heard.beacon);
    let metres = Metres(heard.distance);
    let strength = heard.strength;
    let second = heard.second;
    format!(in heap; "{title}\t{name}\t{beacon}\t{metres}\t{strength}\t{second}\n")
}
