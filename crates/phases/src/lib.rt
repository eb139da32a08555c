// The defined run: phases one to five of RFC 6330, 5.4.2, and what they mean. Nothing runs here.
#![tactic(auto)]
