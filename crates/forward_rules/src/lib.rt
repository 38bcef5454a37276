// What a forwarding decides and writes (document 01, "The order of checks" and "The leaving area"), as definitions, and their laws. There is no code here.
#![tactic(auto)]
