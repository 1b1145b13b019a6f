// What people read.
mod lines;
