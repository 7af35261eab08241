// Two things clients ask us to state (request 2026-13). There is no code here: specs/Statements.antt states them, proofs/ proves them.
#![tactic(auto)]
