// The samples that are proved: the sample circuit and one table. There is no code here.
#![tactic(auto)]
