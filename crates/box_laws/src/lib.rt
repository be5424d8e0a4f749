// Laws over the rules of boxes: the smallest number that stands twice or is missing, the answer in any order, bytes handed out exactly if an ordering exists, a file laid out and walked. No function.
#![tactic(auto)]
