// What is tried on examples: layers in unusual orders, texts that cannot be read, and every cause of a fault.
#![tactic(auto)]

mod option_texts;
mod orders;
