// The calls as benches link them: numbers and bytes go in, structs of numbers come out. include/ddlp.h says the same in C.
#![tactic(auto)]

mod calls;
mod looked;
