// Mailbox names (document 02, order 1): definitions and laws.

#![tactic(auto)]
