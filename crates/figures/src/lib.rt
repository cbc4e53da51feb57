// The worked figures of the two fields, of MKV and AES, of the layers and of a bank and its links, in one table.
// Promises that each row of the table holds of the definitions that the other crates' contracts cite.
// Rests on those definitions.
#![tactic(auto)]

ghost use Rattle.figures.specs.Figures.{figures, All};

// Every worked figure holds.
pub fn figures_hold()
    ensures { All figures }
{}
