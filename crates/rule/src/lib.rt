// How phase one chooses a row and its columns, and what RFC 6330 permits there: nothing runs here.
#![tactic(auto)]
