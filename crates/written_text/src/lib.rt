// The text of a plant and its index, and when it is not written: the definitions are in specs/. It reads as what it was written from, and a text that
// is read is the text of what it makes: the theorems are in proofs/. No code.
#![tactic(auto)]
