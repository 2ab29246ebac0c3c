// Whether a text is `fof` lines by TPTP's grammar (document 02, request One), which is crate fof_productions'.
#![tactic(auto)]

mod machine;
mod read;
mod recognise;
mod table;

pub use recognise::sound_text;
