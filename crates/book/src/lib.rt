// The book: its layout in bytes, what form is, a book with one thing changed. Definitions and laws, no code.

#![tactic(auto)]
