// A set from code page 437 to 1252 and back: the two code pages by name. The definitions are in specs/, their laws in proofs/.
#![tactic(auto)]

// A code page that a set may be wanted in.
#[derive(Clone, Copy)]
pub enum Code {
    Page437,
    Page1252,
}
