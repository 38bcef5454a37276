// Demands 2 and 3 over a box of many ports, stated in specs/Demands.antt and proved from those of the two-port decision. There is no code here.
#![tactic(auto)]
