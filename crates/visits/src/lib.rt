// No code: what holds of the visits of any table, from what each node's own step owes (specs/Claims.antt).
#![tactic(auto)]
