// What is promised of the public calls: theorems about every outcome that their contracts allow (proofs/), in the words of the calls and
// of document 01. There is no code here.
#![tactic(auto)]
