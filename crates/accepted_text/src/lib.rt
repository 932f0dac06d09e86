// An accepted plant text makes tables that none of 1 to 9 refuses: the theorem is in proofs/. No code.
#![tactic(auto)]
