// What the toolchain's library answers, beside the definitions: options, and the test of every member of a list.
#![tactic(auto)]
