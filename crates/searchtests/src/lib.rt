// The tests of the search file and of searches, in a crate of their own, since a crate with tests is proved twice.
// Promises nothing: every test is proved to end, and is then run.
// Rests on `patrol` and `searchfile`.
#![tactic(auto)]

#[cfg(test)]
mod tests {
    use patrol::Search;
    use searchfile::{Fault, Statement};
    use std::alloc::{AllocError, AllocGlobal, Global};
    use std::process::Abort;
    use std::test::Fail;

    // What a line comes to in a search.
    fn told(heap: Global, search: &mut Search, line: &str) -> Result<String, Fault> {
        match searchfile::parse(heap, line)? {
            Statement::Blank => Ok(String::new(heap)),
            Statement::Title { title } => {
                search.begin(title)?;
                Ok(String::new(heap))
            }
            Statement::Radio { cipher } => {
                search.tune(cipher)?;
                Ok(String::new(heap))
            }
            Statement::Set {
                role,
                name,
                cells,
                key_cells,
            } => {
                let event = search.declare(role, name, cells, key_cells)?;
                Ok(format!(in heap; "{event}")?)
            }
            Statement::Step {
                second,
                name,
                action,
            } => {
                let event = search.act(second, name, &action)?;
                Ok(format!(in heap; "{event}")?)
            }
        }
    }

    // The same in words, a fault's too.
    fn said(heap: Global, search: &mut Search, line: &str) -> Result<String, AllocError> {
        told(heap, search, line).or_else(|fault| format!(in heap; "{fault}"))
    }

    // Goes through lines and compares what each comes to; then the search is over, whatever came.
    fn holds(rt: &(impl Abort + AllocGlobal), cases: &[(&str, &str)]) -> Result<(), Fail> {
        let mut search = Search::new(rt.alloc());
        let done = all_hold(rt, &mut search, cases);
        search.over();
        done
    }

    fn all_hold(
        rt: &(impl Abort + AllocGlobal),
        search: &mut Search,
        cases: &[(&str, &str)],
    ) -> Result<(), Fail> {
        for (line, says) in cases {
            let text = said(rt.alloc(), search, line)?;
            assert_eq!(rt; text.as_str(), *says, "{}", line);
        }
        Ok(())
    }

    #[test]
    fn answers(rt: HostRuntime) -> Result<(), Fail> {
        holds(
            &rt,
            &[
                ("search Edges", ""),
                ("leader Mara with 256 cells", "has 256 cells"),
                (
                    "patroller Jon with 257 cells",
                    "refused 3: cells are set once, from 1 to 256",
                ),
                (
                    "0:00:01 Jon gets 0 cells",
                    "refused 3: cells are set once, from 1 to 256",
                ),
                ("0:00:02 Jon gets 2 cells", "has 2 cells"),
                (
                    "0:00:03 Jon gets 2 cells",
                    "refused 3: cells are set once, from 1 to 256",
                ),
                (
                    "0:00:04 Jon hears 0000000a at 0.0 m strength 0 on list 15",
                    "1 record onto list 15, 1 cell free",
                ),
                (
                    "0:00:05 Jon hears 0000000a at 0.0 m strength 0 on list 16",
                    "refused 4: chains go from 0 to 15",
                ),
                (
                    "0:00:06 Jon reads list 15 at 1",
                    "refused 5: the chain ends before that position",
                ),
                (
                    "0:00:07 Jon sweeps list 1 0000000a 0.0 m 0 0000000b 0.0 m 0",
                    "refused 6: too few cells are free (1 free, 2 needed)",
                ),
                (
                    "0:00:08 Jon sweeps list 1",
                    "0 records onto list 1, 1 cell free",
                ),
                (
                    "0:00:09 Jon loses list 999999999999999",
                    "refused 4: chains go from 0 to 15",
                ),
            ],
        )
    }

    #[test]
    fn bad_lines(rt: HostRuntime) -> Result<(), Fail> {
        holds(
            &rt,
            &[
                (
                    "leader Mara with 1 cells",
                    "expected `search TITLE` before this",
                ),
                ("search", "expected `search TITLE`"),
                ("search Faults", ""),
                (
                    "patroller Jon with 1 cells",
                    "expected `leader NAME with N cells` before this",
                ),
                (
                    "leader Mara with -1 cells",
                    "expected a whole number of at most 15 digits",
                ),
                ("leader Mara with 1 cells # good", "has 1 cell"),
                (
                    "patroller Mara with 1 cells",
                    "expected a name that no other set has",
                ),
                (
                    "0:60:00 Mara lists",
                    "expected a time of the search as h:mm:ss, first on the line",
                ),
                (
                    "0:00:00 Jon lists",
                    "expected the name of a set declared above",
                ),
                ("0:00:00 Mara lists 1", "expected `TIME NAME lists`"),
                (
                    "0:00:00 Mara reports list 1",
                    "expected the name of a patroller",
                ),
                (
                    "0:00:00 Mara hears 1A2B3C4 at 1.0 m, strength 1, on list 1",
                    "expected a beacon's identity of 8 hexadecimal digits",
                ),
                (
                    "0:00:00 Mara hears 1A2B3C4D at 6553.6 m, strength 1, on list 1",
                    "expected a distance up to 6553.5 with one decimal, as 18.4",
                ),
                (
                    "0:00:00 Mara hears 1A2B3C4D at 1.0 m, strength 256, on list 1",
                    "expected a strength from 0 to 255",
                ),
            ],
        )
    }

    // Each form of a line that is not kept, and what is told of it.
    #[test]
    fn forms(rt: HostRuntime) -> Result<(), Fail> {
        let statement =
            "expected `search`, `radio`, `leader`, `patroller`, or a time, a set and what it does";
        let set =
            "expected `leader NAME with N cells` or `patroller NAME with N cells`, and where there is a radio `and N key cells`";
        let opens =
            "expected `TIME NAME opens link MODE with N bytes`, the mode cbc, cfb, ofb or its number";
        let cipher =
            "expected a cipher: aes, mkv128, mkv256, whitened before one, or two of one width as aes 16 mkv128";
        let sweeps = "expected `TIME NAME sweeps list N: BEACON METRES m N; ...`";
        let number = "expected a whole number of at most 15 digits";
        holds(
            &rt,
            &[
                ("search: # without a title", "expected `search TITLE`"),
                ("radio des", cipher),
                ("search Forms", ""),
                ("search Again", "expected no second `search` in a file"),
                ("radio", cipher),
                ("radio whitened", cipher),
                ("radio aes 16 mkv256", cipher),
                ("leader Mara with 9 cell", set),
                ("leader Mara with 9 cells and 9 cells", set),
                ("leader Mara with 9 cells and x key cells", number),
                ("leader: Mara, with 9 cells;", "has 9 cells"),
                (
                    "leader Ada with 9 cells",
                    "expected no second `leader` in a search",
                ),
                ("patroller with 9 cells", set),
                (" \t # nothing but a comment", ""),
                ("Mara counts", statement),
                ("0:00:00 Mara rests", statement),
                (
                    "00:00 Mara counts",
                    "expected a time of the search as h:mm:ss, first on the line",
                ),
                ("0:00:00 Mara counts cells", "expected `TIME NAME counts`"),
                (
                    "0:00:00 Mara hears 1A2B3C4D at 1.0 m, strength 1, on list",
                    "expected `TIME NAME hears BEACON at METRES m, strength N, on list N`",
                ),
                (
                    "0:00:00 Mara hears 1A2B3C4D at 1.0 m, strength 1, on list x",
                    number,
                ),
                ("0:00:00 Mara sweeps 1: 1A2B3C4D 1.0 m 1", sweeps),
                ("0:00:00 Mara sweeps list 1: 1A2B3C4D 1.0 m", sweeps),
                (
                    "0:00:00 Mara sweeps list 1: 1A2B3C4D 1.0 m 1; 1A2B3C4D 1.0 n 1",
                    sweeps,
                ),
                ("0:00:00 Mara sweeps list x: 1A2B3C4D 1.0 m 1", number),
                (
                    "0:00:00 Mara sweeps list 1: 1A2B3C4D 1.0 m 1; 1A2B3C4D 1.00 m 1",
                    "expected a distance up to 6553.5 with one decimal, as 18.4",
                ),
                (
                    "0:00:00 Mara reports 1",
                    "expected `TIME NAME reports list N`",
                ),
                ("0:00:00 Mara reports list x", number),
                (
                    "0:00:00 Mara loses links",
                    "expected `TIME NAME loses list N` or `TIME NAME loses link`",
                ),
                (
                    "0:00:00 Mara closes list 1",
                    "expected `TIME NAME closes link`",
                ),
                (
                    "0:00:00 Mara reads list 0",
                    "expected `TIME NAME reads list N at N`",
                ),
                ("0:00:00 Mara reads list 0 at 1234567890123456", number),
                (
                    "0:00:00 Mara gets 9",
                    "expected `TIME NAME gets N cells` or `TIME NAME gets N key cells`",
                ),
                ("0:00:00 Mara gets x key cells", number),
                (
                    "0:00:00 Mara keys aes 16 bytes",
                    "expected `TIME NAME keys CIPHER with N bytes`",
                ),
                ("0:00:00 Mara keys with 16 bytes", cipher),
                ("0:00:00 Mara keys aes with x bytes", number),
                ("0:00:00 Mara opens link 256 with 16 bytes", opens),
                ("0:00:00 Mara opens link des with 16 bytes", number),
                ("0:00:00 Mara opens link cbc with x bytes", number),
                (
                    "0:00:02, Mara; counts: # later",
                    "9 cells and 0 key cells free, 0 links open",
                ),
                (
                    "0:00:01 Mara counts",
                    "expected a time not before that of the step above",
                ),
            ],
        )
    }

    // Links of both widths: opened, reported over, closed and lost; what a set refuses, and what the leader's.
    #[test]
    fn links(rt: HostRuntime) -> Result<(), Fail> {
        holds(
            &rt,
            &[
                ("search Links", ""),
                ("radio mkv256", ""),
                (
                    "leader Mara with 4 cells and 60 key cells",
                    "has 4 cells and 60 key cells",
                ),
                (
                    "patroller Jon with 4 cells and 40 key cells",
                    "has 4 cells and 40 key cells",
                ),
                ("patroller Ada with 4 cells", "has 4 cells"),
                (
                    "0:00:01 Jon reports list 1",
                    "refused 12: that link is not open",
                ),
                (
                    "0:00:02 Jon closes link",
                    "refused 12: that link is not open",
                ),
                (
                    "0:00:03 Jon loses link",
                    "refused 12: that link is not open",
                ),
                (
                    "0:00:04 Jon opens link 0 with 16 bytes",
                    "refused 9: there is no such mode or direction",
                ),
                (
                    "0:00:05 Jon opens link cbc with 16 bytes",
                    "refused 7: layer 0 takes no key of 16 bytes",
                ),
                (
                    "0:00:06 Jon opens link cbc with 999999999999999 bytes",
                    "refused 7: layer 0 takes no key of 999999999999999 bytes",
                ),
                (
                    "0:00:07 Jon opens link 4 with 999999999999999 bytes",
                    "refused 9: there is no such mode or direction",
                ),
                (
                    "0:00:08 Ada opens link ofb with 32 bytes",
                    "refused 6: too few cells are free (0 free, 26 needed)",
                ),
                (
                    "0:00:09 Ada gets 257 key cells",
                    "refused 3: cells are set once, from 1 to 256",
                ),
                ("0:00:10 Ada gets 256 key cells", "has 256 key cells"),
                (
                    "0:00:11 Ada gets 256 key cells",
                    "refused 3: cells are set once, from 1 to 256",
                ),
                (
                    "0:00:12 Jon opens link cbc with 64 bytes",
                    "opens link 0, the leader's link 0: 6 key cells free, 26 there",
                ),
                (
                    "0:00:13 Ada opens link ofb with 48 bytes",
                    "refused 6 by the leader's set: too few cells are free (26 free, 30 needed)",
                ),
                (
                    "0:00:14 Ada counts",
                    "4 cells and 256 key cells free, 0 links open",
                ),
                (
                    "0:00:15 Ada opens link ofb with 32 bytes",
                    "opens link 0, the leader's link 1: 230 key cells free, 0 there",
                ),
                (
                    "0:00:16 Ada sweeps list 3 0000000a 1.0 m 1 0000000b 2.0 m 2 0000000c 3.0 m 3",
                    "3 records onto list 3, 1 cell free",
                ),
                (
                    "0:00:17 Ada reports list 3",
                    "reports list 3: 3 records sent, 3 records onto the leader's list 2, 1 cell free there",
                ),
                (
                    "0:00:18 Ada reports list 3",
                    "refused 6 by the leader's set: too few cells are free (1 free, 3 needed)",
                ),
                (
                    "0:00:19 Ada reports list 4",
                    "reports list 4: 0 records sent, 0 records onto the leader's list 2, 1 cell free there",
                ),
                (
                    "0:00:20 Ada reports list 16",
                    "refused 4: chains go from 0 to 15",
                ),
                (
                    "0:00:21 Jon hears 0000000d at 4.0 m, strength 4, on list 5",
                    "1 record onto list 5, 3 cells free",
                ),
                (
                    "0:00:22 Jon reports list 5",
                    "reports list 5: 1 record sent, 0 records onto the leader's list 1, 1 cell free there",
                ),
                (
                    "0:00:23 Jon opens link cbc with 32 bytes",
                    "expected a patroller whose link is closed",
                ),
                (
                    "0:00:24 Jon closes link",
                    "closes link 0: 1 record onto the leader's list 1, 0 cells free there; 40 key cells free, 34 there",
                ),
                (
                    "0:00:25 Mara reads list 1 at 0",
                    "list 1 at 0: 0000000D at 4.0 m, strength 4, heard 0:00:21",
                ),
                (
                    "0:00:26 Ada loses link",
                    "loses link 0: 256 key cells free, 60 there",
                ),
                (
                    "0:00:27 Jon opens link cfb with 32 bytes",
                    "opens link 0, the leader's link 0: 14 key cells free, 34 there",
                ),
                (
                    "0:00:28 Mara counts",
                    "0 cells and 34 key cells free, 1 link open",
                ),
                (
                    "0:00:29 Mara opens link cbc with 32 bytes",
                    "expected the name of a patroller",
                ),
                (
                    "0:00:30 Jon opens link cbc for 32 bytes",
                    "expected `TIME NAME opens link MODE with N bytes`, the mode cbc, cfb, ofb or its number",
                ),
                (
                    "radio aes",
                    "expected no second `radio` in a search, and none after `leader`",
                ),
            ],
        )
    }
}
