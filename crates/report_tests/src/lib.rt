// Tables of inputs with the text that the program prints for them. What is expected is worked out from the rules by hand.
#![tactic(auto)]

#[cfg(test)]
mod reports;
