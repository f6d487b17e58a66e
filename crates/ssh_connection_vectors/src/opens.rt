// Scripts in which either side opens channels, and what the program writes for them.
mod misfits;
mod own;
mod peers;
mod transfer;
