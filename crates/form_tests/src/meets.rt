mod distances;
mod loops;
mod rows;
