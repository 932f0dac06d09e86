// What every crate shares: definitions in specs/, laws about them in proofs/. No code.
#![tactic(auto)]
