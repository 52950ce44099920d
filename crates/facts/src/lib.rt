// What a step that is taken may rely on, which kinds of cell it writes, and which numbers it may get: theorems only, in specs/.
#![tactic(auto)]
