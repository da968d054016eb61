// How near the figures are to the documents' formulas: promises about definitions, so there is no code here.
#![tactic(auto)]
