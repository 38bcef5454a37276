// The three demands, stated in specs/Demands.antt over the definitions of the layers below, and proved. There is no code here.
#![tactic(auto)]
