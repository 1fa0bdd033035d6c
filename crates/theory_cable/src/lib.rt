// No code: both ends of the cable together (specs/Carrying), and what follows from the rules of sender and receiver: a set is carried whole, delivered means arrived, and a block with one byte
// changed is never taken. How a set is refused by the sender, by itself (specs/CableBreaches), and that this, the form of a block and the cuts are exact.
#![tactic(auto)]
