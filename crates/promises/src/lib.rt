// No code: the demands on the product, each as one statement, the cases tried by hand, and the near passes.
#![tactic(auto)]
