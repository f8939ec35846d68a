// What a desk's lines do to its page, and when one leaves it. Definitions and laws, no code.

#![tactic(auto)]
