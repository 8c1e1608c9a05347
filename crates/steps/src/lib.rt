// No code: what functions of the grammar that answer more than yes and no have surely taken (specs/View.antt).
#![tactic(auto)]
