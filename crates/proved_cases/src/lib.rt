// The worked cases of document 01, proved by one statement.
#![tactic(auto)]
