mod faults;
mod logs;
mod names;
mod points;
mod rows;
mod streams;
