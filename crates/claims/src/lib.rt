#![tactic(auto)]

// Worked lines of document 01, and others by hand, as proved claims. There is no code here: see specs/Lib.antt.
