// RFC 1554's formal syntax, and that a text is accepted as JP-2 exactly when its lines follow it (document 02,
// order 7): definitions and laws, no code.

#![tactic(auto)]
