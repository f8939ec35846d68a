// Demand 3 across page files: lists of calls on a page, keepings of it and readings of what was kept. Definitions and
// laws, no code.

#![tactic(auto)]
