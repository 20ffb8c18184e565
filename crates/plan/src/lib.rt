#![tactic(auto)]

// The plan of a change as code writes it: definitions in specs/, and in proofs/ that they are the specification's.
