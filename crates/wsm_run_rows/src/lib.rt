//! Worked rows of what the runs of the program rest on, from a query's text to the bytes that are written: there is no
//! code here, and nothing stands on this. What is expected was computed by another program, or by hand.
#![tactic(auto)]
