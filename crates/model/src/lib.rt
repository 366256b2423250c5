// The store's rules as definitions, specs/, and what the lent memory holds before and after each call. There is no code here.
#![tactic(auto)]
