// What is wrong with a line of a search file: what was expected there.
use std::alloc::AllocError;
use thiserror::Error;

// What was expected where a line is wrong.
#[derive(Clone, Copy, PartialEq, Eq, Debug, Error)]
pub enum Fault {
    #[error("expected `search`, `radio`, `leader`, `patroller`, or a time, a set and what it does")]
    Statement,
    #[error("expected `search TITLE`")]
    TitleForm,
    #[error("expected `leader NAME with N cells` or `patroller NAME with N cells`, and where there is a radio `and N key cells`")]
    SetForm,
    #[error("expected `TIME NAME hears BEACON at METRES m, strength N, on list N`")]
    HearsForm,
    #[error("expected `TIME NAME sweeps list N: BEACON METRES m N; ...`")]
    SweepsForm,
    #[error("expected `TIME NAME reports list N`")]
    ReportsForm,
    #[error("expected `TIME NAME loses list N` or `TIME NAME loses link`")]
    LosesForm,
    #[error("expected `TIME NAME reads list N at N`")]
    ReadsForm,
    #[error("expected `TIME NAME lists`")]
    ListsForm,
    #[error("expected `TIME NAME counts`")]
    CountsForm,
    #[error("expected `TIME NAME opens link MODE with N bytes`, the mode cbc, cfb, ofb or its number")]
    OpensForm,
    #[error("expected `TIME NAME closes link`")]
    ClosesForm,
    #[error("expected `TIME NAME gets N cells` or `TIME NAME gets N key cells`")]
    GetsForm,
    #[error("expected `TIME NAME keys CIPHER with N bytes`")]
    KeysForm,
    #[error("expected a cipher: aes, mkv128, mkv256, whitened before one, or two of one width as aes 16 mkv128")]
    CipherForm,
    #[error("expected a time of the search as h:mm:ss, first on the line")]
    Time,
    #[error("expected a beacon's identity of 8 hexadecimal digits")]
    Beacon,
    #[error("expected a distance up to 6553.5 with one decimal, as 18.4")]
    Distance,
    #[error("expected a strength from 0 to 255")]
    Strength,
    #[error("expected a whole number of at most 15 digits")]
    Number,
    #[error("expected text in UTF-8")]
    Text,
    #[error("expected text without control characters")]
    Control,
    #[error("expected `search TITLE` before this")]
    SearchFirst,
    #[error("expected no second `search` in a file")]
    OneSearch,
    #[error("expected no second `radio` in a search, and none after `leader`")]
    OneRadio,
    #[error("expected `leader NAME with N cells` before this")]
    LeaderFirst,
    #[error("expected no second `leader` in a search")]
    OneLeader,
    #[error("expected a name that no other set has")]
    NewName,
    #[error("expected the name of a set declared above")]
    KnownName,
    #[error("expected the name of a patroller")]
    PatrollerName,
    #[error("expected a patroller whose link is closed")]
    OneLink,
    #[error("expected a time not before that of the step above")]
    LaterTime,
    #[error("expected `search TITLE` and `leader NAME with N cells` before the end")]
    Ends,
    // no memory is left: the only fault that is not the file's
    #[error("no memory is left")]
    Memory(#[from(alloc)] AllocError),
}
