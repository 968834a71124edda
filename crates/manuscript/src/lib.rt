// No code: the converter of blocks that the calls stand on, and what is known of it.
#![tactic(auto)]
