// The drawings as calls and as files: their groups and links as bytes, lent or in blocks, and what the definitions say of them. Theorems alone, no code.
#![tactic(auto)]
