// Document 01's marked cases, proved over the definitions (specs/Marked.antt). Nothing runs here.
#![tactic(auto)]
