// Soundness of a book (01, The book): laws only.

#![tactic(auto)]
