// What is proved of every call: specs/Laws.antt and specs/Replies.antt. There is no code here.
#![tactic(auto)]
