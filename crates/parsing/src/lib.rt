// Reading by parts, such as the lines of a file: parsers with places, what a language is, and where the first byte
// stands that cannot. Definitions and laws, no code.

#![tactic(auto)]
