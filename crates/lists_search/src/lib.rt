// A search by halves among places: what it comes to of any test, and what it finds where the test changes once. There is no code here.
#![tactic(auto)]
