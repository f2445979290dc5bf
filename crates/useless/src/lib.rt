// Useless programs and wrong turns (Specification 15.4 and 15.5), each tried: no promise of reader, chooser or checker allows their answers. Theorems alone, no code.
#![tactic(auto)]
